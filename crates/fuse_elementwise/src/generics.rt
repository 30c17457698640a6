ghost use Rattle.std.specs.Prelude.{◌≡◌, option_map};
ghost use Rattle.pair_laws.specs.FuseAll.{as_generic};
ghost use Rattle.fuse_forms.specs.Forms.{structured};

use fuse_forms::Generic;
use mlir_ir::OpKind;

/// An operation as a generic, if it is one.
pub(crate) fn as_generic(kind: &OpKind) -> Option<Generic<'_>>
    ensures { option_map structured result ≡ as_generic kind.now }
{
    match kind {
        OpKind::Generic {
            maps,
            iterators,
            ins,
            outs,
            captured,
            payload,
        } => Some(Generic {
            maps: maps.as_slice(),
            iterators: iterators.as_slice(),
            ins: ins.as_slice(),
            outs: *outs,
            captured: captured.as_slice(),
            payload,
        }),
        _ => None,
    }
}
