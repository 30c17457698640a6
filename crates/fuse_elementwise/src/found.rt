use mlir_base::List;

/// Where a pair stands: the places of the producer and the consumer in the body, the operand, and the dimensions that
/// the producer's output map takes.
#[derive(Drop)]
pub(crate) struct Found {
    pub producer: usize,
    pub consumer: usize,
    pub operand: u32,
    pub dims: List<u32>,
}
