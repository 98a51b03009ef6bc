// The file of a halt log from its first item to its last.
mod faults;
mod life;
mod rig;
