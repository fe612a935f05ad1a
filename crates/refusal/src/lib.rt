// Why a call is declined.
#![tactic(auto)]

mod reason;

pub use reason::Refusal;
