//! A server at a port of the loopback, and users' clients that carry out scripts, in one process: what
//! no clause says, as none speaks of sockets. And what several threads do with sessions and items.
#![tactic(auto)]

#[cfg(test)]
mod clients;
#[cfg(test)]
mod gates;
#[cfg(test)]
mod items;
#[cfg(test)]
mod liars;
#[cfg(test)]
mod lies;
#[cfg(test)]
mod logs;
#[cfg(test)]
mod servers;
#[cfg(test)]
mod sessions;
#[cfg(test)]
mod walks;
