//! The script of `trace`, and the printed text of a history.
//!
//! A script is lines, each a call of a client ([`Line`]); contracts see it as the list of what its lines ask for. A history is
//! printed as one line an entry. Both forms are this project's own: `specs/Fields.antt` and `specs/Script.antt` have the grammar of a
//! whole text, `specs/Views.antt` the store's number of a client's view, and `specs/Text.antt` the text of an entry.
//!
//! The one contract: [`read_script`] gives exactly the lines of a text that the grammar accepts, and of any other the number of its
//! first bad line and what is wrong with it, unless it runs out of memory; and [`write_entry`] appends exactly the text of the entry.
//! [`Views`] holds the views of each client, and gives the call that a line asks for.
#![tactic(auto)]

mod call;
mod fault;
mod field;
pub mod laws;
mod line;
mod numbers;
mod pieces;
mod script;
mod text;
mod views;

pub use call::ScriptCall;
pub use fault::{ScriptFault, ScriptKind};
pub use field::is_number;
pub use line::{Line, Lines};
pub use numbers::put_numbers;
pub use script::read_script;
pub use text::{PrintFault, put_head_reply, put_info, put_settings, write_entry};
pub use views::Views;

/// The most lines of a script, those without a call included.
pub const LINES: u32 = 100_000;

/// The most bytes of a script.
pub const SCRIPT_BYTES: usize = 16_777_216;

/// The most clients of a script. Their numbers are below it.
pub const CLIENTS: u8 = 8;
