// Disks, call by call: what a call answers, what it leaves, and what is counted as a fault.
mod folder;
mod fuse;
mod memory;
mod place;
mod reasons;
mod rig;
