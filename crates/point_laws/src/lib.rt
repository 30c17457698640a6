//! The laws of points and folds that steps on loops stand on.
//!
//! The law functions, from [`tiles_hold_each_point_once`] to [`orders_permute_points`], have no code: their
//! contracts are the laws.
//!
//! The definitions stand in `specs/`: `Tiles` (tiles of a box), `Boxes` (boxes that hold others, some of the
//! coordinates of a point), `Orders` (points in another order of their dimensions), `Folds` (folds whose terms
//! may change places, and payloads whose terms they are), and `Laws`.
#![tactic(auto)]

mod laws;

pub use laws::{
    boxes_hold_boxes, folds_may_be_cut, orders_permute_points, tiles_hold_each_point_once,
};
