//! The laws of tiles: a generic on the tiles of its operands, the payload of a tile, the operations of a
//! tile, and the loops over tiles.
//!
//! The law functions, from [`generics_have_tiles`] to [`loops_give_the_whole_among_others`], have no code:
//! their contracts are the laws.
//!
//! The definitions stand in `specs/`: `Regions` (tensors made point by point, and one tile of them),
//! `Operands` (tiles of operands), `Instances` (what is known of a generic in a state), `Nests` and `TileLoops`
//! (loops over tiles), `Among` (loops with several values) and `Spans` (where insertions stand), `Moved` and
//! `Captured` (payloads whose steps stand in other places), `Shifts` (payloads with their indices moved), `Bodies`
//! (the operations of one tile), and `Laws`.
#![tactic(auto)]

mod laws;

pub use laws::{
    bodies_do_one_tile, generics_have_tiles, loops_give_the_whole_among_others,
    loops_over_tiles_mean_the_whole, named_tiles_are_named, payloads_move_with_tiles,
};
