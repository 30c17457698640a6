//! Generics as the code holds them.

ghost use Rattle.std.specs.Prelude.{◌≡◌, take, length};
ghost use Rattle.tile_bridge.specs.Instances.{input_maps};
ghost use Rattle.verified_runs.specs.Forms.{kind_of};
ghost use Rattle.fuse_forms.specs.Forms.{structured};

use affine_maps::AffineMap;
use mlir_base::List;
use mlir_ir::{Iter, OpKind, ValueId};
use payload_ops::Payload;
use std::marker::Model;

/// A `linalg.generic` without its results.
#[derive(Drop)]
pub struct Generic<'a> {
    pub maps: &'a [AffineMap],
    pub iterators: &'a [Iter],
    pub ins: &'a [ValueId],
    pub outs: ValueId,
    pub captured: &'a [ValueId],
    pub payload: &'a Payload,
}

impl<'a> Generic<'a> {
    /// The maps of its inputs.
    pub fn input_maps(&self) -> &'a [AffineMap]
        ensures { result.now ≡ input_maps (structured self.now) }
    {
        let maps = self.maps;
        let count = self.ins.len();
        if count < maps.len() {
            &maps[..count]
        } else {
            maps
        }
    }
}

/// A generic that was formed.
#[derive(Drop)]
pub struct Fused {
    pub maps: List<AffineMap>,
    pub iterators: List<Iter>,
    pub ins: List<ValueId>,
    pub outs: ValueId,
    pub captured: List<ValueId>,
    pub payload: Payload,
}

impl Model for Fused {
    ghost use Rattle.verified_runs.specs.Forms.{Structured};

    ghost Value = { Structured };

    ghost view = { λ g. record { maps = g.maps; iterators = g.iterators; ins = g.ins; outs = g.outs; captured = g.captured; payload = g.payload } };
}

impl Fused {
    /// The operation's kind.
    pub fn into_kind(self) -> OpKind
        ensures { result ≡ kind_of self }
    {
        OpKind::Generic {
            maps: self.maps,
            iterators: self.iterators,
            ins: self.ins,
            outs: self.outs,
            captured: self.captured,
            payload: self.payload,
        }
    }

    pub fn as_generic(&self) -> Generic<'_>
        ensures { structured result ≡ self.now }
    {
        Generic {
            maps: self.maps.as_slice(),
            iterators: self.iterators.as_slice(),
            ins: self.ins.as_slice(),
            outs: self.outs,
            captured: self.captured.as_slice(),
            payload: &self.payload,
        }
    }
}
