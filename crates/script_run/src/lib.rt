//! Scripts, applied step by step to a verified module.
//!
//! - `Session` is a module with the handles that name targets in it: `Session::new` opens one, `Session::apply` applies a step or
//!   refuses it and leaves the session as it was, `Session::live` tells what a handle names, and `Session::module` lends the module.
//! - `run_script` applies the steps of a script in order. `ScriptError` has the number of the step that is refused, and why.
//! - `first_unbuilt` tells the first step of a script that isn't built. No such step is applied.
//!
//! `specs/Steps.antt` says what a step does to a session, `specs/Sessions.antt` what each session keeps, `specs/Scripts.antt` what
//! a script gives, and `specs/Laws.antt` that every function keeps its meaning.
#![tactic(auto)]

mod error;
mod fusing;
mod laws;
mod rows;
mod script;
mod session;
mod transforms;

pub use error::ScriptError;
pub use laws::run_keeps_meaning;
pub use rewrite_base::StepError;
pub use script::{first_unbuilt, run_script};
pub use session::Session;
