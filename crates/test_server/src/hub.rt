//! The hub over real sockets, and what a read and the writing of some bytes come to over a hub in
//! memory.

mod clients;
mod memory;
mod pieces;
mod sockets;
