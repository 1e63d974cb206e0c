// Every refusal of the tunnel: a fault of the record layer inside one of the job layer inside one of the call layer.
#![tactic(auto)]

mod call;
mod job;
mod record;

pub use call::CallFault;
pub use job::JobFault;
pub use record::RecordFault;
