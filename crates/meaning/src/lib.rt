// What scripts and their rewriting mean, and the statement on two runs.
#![tactic(auto)]

mod answers;
mod laws;

pub use answers::{Answer, Call, Line, Standing};
pub use laws::{
    confinement_for, confinement_stands, flow_laws, rewritten_scripts_stand, run_laws,
    structured_runs_stand, toll_laws,
};
