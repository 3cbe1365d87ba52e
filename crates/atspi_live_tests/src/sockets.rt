//! The one test of the system's sockets as a host: two hosts on one path.

mod passing;
