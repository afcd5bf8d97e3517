use px_base::Fault;
use px_interp::Registers;
use px_regcode::Register;

/// A function that runs, or module code.
#[derive(Drop)]
pub struct Frame {
    /// The number of the function among the codes of the image.
    pub function: u32,
    /// The number of the instruction that it runs next; of a frame that waits for a call, that of the one behind the call.
    pub pc: usize,
    pub registers: Registers,
    /// The register of the frame that waits for it which gets what it gives.
    pub result: Option<Register>,
    /// The instruction at which its faults go on; without one they end it.
    pub handler: Option<u32>,
    /// The last fault that went there.
    pub caught: Option<Fault>,
}
