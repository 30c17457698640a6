use rewrite_base::StepError;

/// The step of a script that is refused, by its number from 1 (2^32 - 1 where it is greater), and why.
#[derive(Clone, Copy)]
pub struct ScriptError {
    pub step: u32,
    pub why: StepError,
}
