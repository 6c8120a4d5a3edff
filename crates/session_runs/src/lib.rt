// Commands on the cells of a shard: the reference model, in which these are a plain map; what a session that stays open replies;
// runs of commands on a shard; and the history of a recorded session.
#![tactic(auto)]

mod command;
mod compact;
mod event;
mod history;
mod laws;
mod replies;
mod run;
mod served;
mod session;
mod step;

pub use command::{Command, Reply};
pub use event::{Event, Receipt, same_elements, same_event};
pub use history::History;
pub use laws::read_back;
pub use run::{CommandRun, run_commands};
pub use served::Served;
pub use session::serve;
