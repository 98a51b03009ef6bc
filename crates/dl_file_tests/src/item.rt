// One item file from its first item to its last, and what is found of it.
mod damaged;
mod life;
mod memory;
mod rig;
