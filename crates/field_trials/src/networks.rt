// A gate, a road and an exit, of which the road and the exit are one region.
pub(crate) const TWO_REGIONS: &[u8] =
    b"ctm,2\nsteps,3\ngate,in,2,0\nroad,a,6,2,1,2,0\nexit,out,2\nlink,in,a\nlink,a,out\n\
demand,in,0,1,4\nregion,in,0\nregion,a,1\nregion,out,1\n";

// A gate, two roads and an exit, each a region of its own.
pub(crate) const FOUR_REGIONS: &[u8] =
    b"ctm,2\nsteps,4\ngate,g,2,8\nroad,a,6,2,1,1,0\nroad,b,6,2,1,1,0\nexit,x,2\nlink,g,a\nlink,a,b\nlink,b,x\n\
region,g,0\nregion,a,1\nregion,b,2\nregion,x,3\n";
