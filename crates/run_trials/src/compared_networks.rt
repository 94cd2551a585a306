// Each of the networks below, by what is in it.
pub(crate) const COMPARED: [(&str, &[u8]); 11] = [
    ("a bottleneck", BOTTLENECK),
    ("a bottleneck told backwards", BACKWARDS),
    ("merges and diverges", JUNCTIONS),
    ("signals", SIGNALS),
    ("limits and demands that change", CHANGES),
    ("lone cells", LONE_CELLS),
    ("a ring", RING),
    ("full cells", FULL),
    ("a network at rest", AT_REST),
    ("cells that wait", WAITING),
    ("large cells", LARGE),
];

// Gates, roads and exits in a row, with less capacity in the middle; more come than it lets through.
const BOTTLENECK: &[u8] = b"ctm,2\nsteps,60\n\
gate,in,4,3\nroad,a,12,4,1,2,5\nroad,b,12,4,1,2,0\nroad,c,12,4,1,2,1.5\nroad,d,6,2,1,3,6\nroad,e,3,1,1,1,0\n\
road,f,12,4,2,3,0\nroad,g,12,4,1,2,0.25\nexit,out,3\n\
link,in,a\nlink,a,b\nlink,b,c\nlink,c,d\nlink,d,e\nlink,e,f\nlink,f,g\nlink,g,out\n\
demand,in,0,20,2.75\ndemand,in,25,30,0.333333\n";

// The same row of cells, told from its end to its beginning.
const BACKWARDS: &[u8] = b"ctm,2\nsteps,60\n\
exit,out,3\nroad,g,12,4,1,2,0.25\nroad,f,12,4,2,3,0\nroad,e,3,1,1,1,0\nroad,d,6,2,1,3,6\nroad,c,12,4,1,2,1.5\n\
road,b,12,4,1,2,0\nroad,a,12,4,1,2,5\ngate,in,4,3\n\
link,in,a\nlink,a,b\nlink,b,c\nlink,c,d\nlink,d,e\nlink,e,f\nlink,f,g\nlink,g,out\n\
demand,in,0,20,2.75\ndemand,in,25,30,0.333333\n";

// Two merges and two diverges, whose shares change, one of them into an exit that lets little through.
const JUNCTIONS: &[u8] = b"ctm,2\nsteps,60\n\
gate,in,4,2\ngate,ramp,2,6\nroad,a,12,4,1,2,3\nroad,b,10,4,1,2,0\nroad,c,8,3,1,2,8\nexit,off,0.75\n\
road,d,9,3,1,3,0\nroad,e,7,2.5,2,3,0.5\nroad,f,9,3,1,2,9\nexit,out,2\n\
link,in,a\nmerge,a,ramp,b,3,1\ndiverge,b,c,off,4,1\ndiverge,c,d,e,2,1\nmerge,d,e,f,1,2\nlink,f,out\n\
demand,in,0,30,2.5\ndemand,ramp,5,25,1.1\n\
turn,b,5,15,1,4\nturn,b,15,40,7,2\nturn,b,20,22,1,1000\nturn,c,10,30,1,1\nturn,c,30,31,1,3\n";

// Signals with offsets, at a gate too, and cycles of other lengths.
const SIGNALS: &[u8] = b"ctm,2\nsteps,60\n\
gate,in,3,4\nroad,a,9,3,1,2,2\nroad,b,9,3,1,2,9\nroad,c,9,3,1,2,0\nroad,d,9,3,1,2,4.5\nroad,e,9,3,1,2,0\n\
road,f,9,3,1,2,1\nexit,out,3\n\
link,in,a\nlink,a,b\nlink,b,c\nlink,c,d\nlink,d,e\nlink,e,f\nlink,f,out\n\
demand,in,0,40,1.7\n\
signal,in,5,3,0,4\nsignal,b,6,2,0,3\nsignal,c,4,1,1,3\nsignal,d,7,5,2,7\nsignal,f,2,1,0,1\n";

// Limits and demands that change on nearly every step, some behind each other.
const CHANGES: &[u8] = b"ctm,2\nsteps,40\n\
gate,in,3,1\nroad,a,9,3,1,2,0\nroad,b,9,3,1,2,7\nroad,c,9,3,1,2,0\nroad,d,9,3,1,2,3\nexit,out,3\n\
link,in,a\nlink,a,b\nlink,b,c\nlink,c,d\nlink,d,out\n\
limit,in,0,30,2\nlimit,in,4,5,0.5\nlimit,in,6,7,0\nlimit,in,8,40,3\n\
limit,a,1,2,0\nlimit,a,2,3,1\nlimit,a,3,4,0\nlimit,a,4,5,2.5\nlimit,a,5,6,0\nlimit,a,6,20,1.25\nlimit,a,10,12,0\n\
limit,b,0,40,1.5\nlimit,b,1,3,0\nlimit,b,2,4,3\nlimit,b,3,5,0.000001\nlimit,b,20,25,0\nlimit,b,39,40,0\n\
limit,c,5,6,0\nlimit,c,7,8,0\nlimit,c,9,10,0\nlimit,c,11,12,0\nlimit,c,13,14,0\nlimit,c,15,16,0\nlimit,c,17,18,0\n\
limit,d,0,1,0\nlimit,d,1,2,0.25\nlimit,d,2,3,0.5\nlimit,d,3,4,0.75\nlimit,d,4,5,1\nlimit,d,30,41,0.1\n\
limit,out,0,10,1\nlimit,out,10,11,0\nlimit,out,11,20,2\nlimit,out,25,100000,0.3\n\
demand,in,0,1,3\ndemand,in,1,2,0.1\ndemand,in,2,3,2\ndemand,in,3,4,0.000001\ndemand,in,4,30,0.5\ndemand,in,5,6,1\n\
demand,in,7,9,1.5\ndemand,in,8,10,0.25\ndemand,in,12,13,4\ndemand,in,20,21,0.7\ndemand,in,22,23,0.7\ndemand,in,39,40,9\n";

// A gate that leads into an exit at once, a road that leads into itself, and cells without connectors.
const LONE_CELLS: &[u8] = b"ctm,2\nsteps,30\n\
gate,in,2,7\nexit,out,1.5\nroad,round,6,2,1,1,3\nroad,still,5,1,1,1,2\ngate,shut,3,1\nexit,bare,1\nroad,full,4,2,1,2,4\n\
link,in,out\nlink,round,round\n\
demand,in,3,9,0.5\ndemand,shut,0,30,0.25\n";

// A ring, whose last cell leads into the first.
pub(crate) const RING: &[u8] = b"ctm,2\nsteps,80\n\
road,a,10,3,1,2,7.5\nroad,b,8,2,1,1,8\nroad,c,9,4,2,3,0\nroad,d,6,2.5,1,3,1.25\nroad,e,7,3,1,2,7\nroad,f,9,3,1,2,0\n\
road,g,5,2,1,2,5\nroad,h,11,4,3,4,2.000001\n\
link,a,b\nlink,b,c\nlink,c,d\nlink,d,e\nlink,e,f\nlink,f,g\nlink,g,h\nlink,h,a\n";

// Full cells behind an exit that lets nothing through until step 20.
const FULL: &[u8] = b"ctm,2\nsteps,60\n\
gate,in,3,12\nroad,a,9,3,1,2,9\nroad,b,9,3,1,2,9\nroad,c,6,2,1,3,6\nroad,d,9,3,1,1,9\nroad,e,9,3,2,5,9\nexit,out,2\n\
link,in,a\nlink,a,b\nlink,b,c\nlink,c,d\nlink,d,e\nlink,e,out\n\
limit,out,0,20,0\ndemand,in,0,60,0.5\n";

// Nothing is there until step 150, and all have left long before the last step.
const AT_REST: &[u8] = b"ctm,2\nsteps,400\n\
gate,in,2,0\ngate,ramp,1,0\nroad,a,9,3,1,2,0\nroad,b,9,3,1,2,0\nroad,c,9,2,1,2,0\nroad,d,9,3,1,2,0\nexit,off,1\nexit,out,2\n\
link,in,a\nmerge,a,ramp,b,2,1\ndiverge,b,c,off,3,1\nlink,c,d\nlink,d,out\n\
signal,c,5,2,0,3\nlimit,d,10,20,0\nlimit,d,155,160,0.5\nturn,b,100,158,1,1\n\
demand,in,150,156,3\ndemand,ramp,152,154,2\n";

// All wait, behind shut cells, at a red light or too few for the shares of a diverge, and move again at some steps: as a
// cell opens, as the light turns, as more come.
const WAITING: &[u8] = b"ctm,2\nsteps,300\n\
gate,in,2,3\ngate,ramp,1,0.5\nroad,a,6,2,1,2,3\nroad,b,6,2,1,1,0.000004\nroad,c,6,2,2,3,2\nroad,d,6,2,1,2,0\nexit,off,1\nexit,out,2\n\
link,in,a\nmerge,a,ramp,b,2,1\ndiverge,b,c,off,3,2\nlink,c,d\nlink,d,out\n\
signal,c,50,7,0,5\nlimit,in,0,40,0\nlimit,a,0,60,0\nlimit,ramp,0,110,0\nlimit,out,160,190,0\nturn,b,200,300,1,1\n\
demand,in,210,212,1\ndemand,ramp,230,231,0.25\n";

// Large cells, whose ratios seldom divide what is free in them.
const LARGE: &[u8] = b"ctm,2\nsteps,60\n\
gate,in,100000,1000000\nroad,a,100000,100000,999,1000,100000\nroad,b,100000,100000,999,1000,49999.999999\n\
road,c,99999.999999,100000,7,13,0.000001\nroad,d,77777.777777,50000,1,1000,77777.123456\n\
road,e,100000,33333.333333,997,999,12345.678901\nexit,out,1000.000001\n\
link,in,a\nlink,a,b\nlink,b,c\nlink,c,d\nlink,d,e\nlink,e,out\n\
demand,in,0,60,99999.999999\n";
