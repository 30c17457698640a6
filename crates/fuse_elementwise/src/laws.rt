ghost use Rattle.fuse_elementwise.specs.Fused.{FusedKeepsMeaning, FusedVerifies};

/// A verified module with the pairs of one function fused verifies, and each of its functions means what it meant.
/// There is nothing to run.
pub fn fused_module_keeps_meaning()
    ensures meaning { FusedKeepsMeaning }
    ensures verifies { FusedVerifies }
{}
