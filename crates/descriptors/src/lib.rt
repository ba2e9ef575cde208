// The file descriptors of a process's standard streams.
#![tactic(auto)]

pub const STDIN_FILENO: i32 = 0;

pub const STDOUT_FILENO: i32 = 1;

pub const STDERR_FILENO: i32 = 2;
