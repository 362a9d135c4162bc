mod disk;
mod hot;
mod log;
mod meta;
