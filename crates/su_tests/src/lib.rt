//! Users' clients and a book in one process: what no clause says and no desk script shows.
#![tactic(auto)]

#[cfg(test)]
mod books;
#[cfg(test)]
mod clients;
#[cfg(test)]
mod couriers;
#[cfg(test)]
mod items;
#[cfg(test)]
mod keepers;
#[cfg(test)]
mod offers;
#[cfg(test)]
mod rosters;
#[cfg(test)]
mod shared_books;
#[cfg(test)]
mod sources;
#[cfg(test)]
mod threads;
#[cfg(test)]
mod tips;
#[cfg(test)]
mod trees;
#[cfg(test)]
mod views;
