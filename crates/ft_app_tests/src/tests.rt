//! The script of most tests, and its log. The expected texts are those of a program that was written
//! from the same rules by other hands.

mod ends;
mod faults;
mod lanes;
mod running;

/// The most bytes that one call moves when the size is no matter, and room for every text here.
const PIECE: usize = 4_096;

/// One function, one user, one task with one call, and one command.
const FIRST_PATH: &[u8] = b"ftrace 1\nfunc a\nuser tr function\ncpu 0 quantum 100\n\
    task 10 cpu 0\nafter 1\ncall a\nret\nctl register tr\n";

/// What is printed for it.
const FIRST_PATH_LOG: &[u8] = b"0 begin 1\n1 return 1 ok\n2 enter 10.1 normal a -\n\
    3 back 10.1 tr\n4 back-end 10.1 tr\n5 body 10.1 a own tr\n6 leave 10.1\n7 ret 10.1 -\nend\n";
