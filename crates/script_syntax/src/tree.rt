//! What a script is made of. A leaf is the token that was read.
//!
//! Each token that may be at fault is a leaf: names, numbers, quoted texts, the names of steps, and the commas and the closing
//! token of a list whose length another list fixes.

pub mod lines;
pub mod literals;
pub mod results;
pub mod steps;

pub use lines::{Line, NamedStep, Sequence};
pub use literals::{PadValue, QuotedName, Signed};
pub use results::{
    BehindFirst, BehindSecond, BehindThird, Further, Group, GroupStep, GroupTypes, ManyResults,
    MoreTypes, NextResult, NextType, OneResult, Second, Third, ThreeResults, TwoResults,
};
pub use steps::{
    FuseStep, HandleStep, MatchStep, Multiples, PadStep, SizedStep, TileForStep, VectorSizes,
    VectorizeStep,
};
