//! The views that the clients of a script have opened.

ghost use Rattle.std.specs.Prelude.{◌≡◌, ◌<◌, ◌∷◌, [], ◌++◌, OnOk, OnErr, IfOk, slice_set};
ghost use Rattle.ss_model.specs.declared.TheConstants.{NO_VIEW};
ghost use Rattle.ss_script.specs.Views.{no_views, client_views, view_of, resolved, after_answer};

use crate::CLIENTS;
use crate::call::ScriptCall;
use crate::line::Line;
use ss_cid::NoMemory;
use ss_model::{Answer, Call, CloseReply, NO_VIEW, ViewReply};
use std::alloc::Global;
use std::marker::Model;

/// The views of each client, which contracts see as a list of lists: for each of its `open` lines the store's number of the
/// view, or `NO_VIEW` where none was opened or the client has closed it since.
#[derive(Debug, Drop)]
pub struct Views {
    by_client: Vec<Vec<u32>>,
}

impl Model for Views {
    ghost use Rattle.std.specs.Prelude.{◌≡◌, List, ℕ, map, length};

    ghost Value = { List (List ℕ) };

    ghost view = { λ v. map (λ views. views.items) v.by_client.items };

    ghost invariant = { λ v. length v.by_client.items ≡ 8 };
}

impl Views {
    /// The views before the first line: none.
    pub fn new(alloc: Global) -> Result<Views, NoMemory>
        ensures { IfOk result (λ views. views ≡ no_views) }
    {
        let mut by_client = Vec::with_capacity(alloc, usize::from(CLIENTS))?;
        for _client in 0..CLIENTS {
            by_client.push(Vec::new(alloc))?;
        }
        Ok(Views { by_client })
    }

    /// The call that a line asks for. Its view is `NO_VIEW` where the line names an `open` that the client has not made, that
    /// was refused, or whose view it has closed.
    pub fn resolve(&self, line: Line) -> Call
        ensures { result ≡ resolved (client_views self.now line.client) line.call }
    {
        let Line { client, call, .. } = line;
        match call {
            ScriptCall::OpenView => Call::OpenView,
            ScriptCall::CloseView { view } => Call::CloseView {
                view: self.number(client, view),
            },
            ScriptCall::Put { view, parcel } => Call::Put {
                view: self.number(client, view),
                parcel,
            },
            ScriptCall::Get { view, cid } => Call::Get {
                view: self.number(client, view),
                cid,
            },
            ScriptCall::Has { view, cid } => Call::Has {
                view: self.number(client, view),
                cid,
            },
            ScriptCall::Size { view, cid } => Call::Size {
                view: self.number(client, view),
                cid,
            },
            ScriptCall::SetHead { cids } => Call::SetHead { cids },
            ScriptCall::Info => Call::Info,
        }
    }

    // The store's number of a client's view.
    fn number(&self, client: u8, view: u32) -> u32
        requires { client < CLIENTS }
        ensures { result ≡ view_of (client_views self.now client) view }
    {
        let views = &self.by_client[usize::from(client)];
        match views.get(view as usize) {
            Some(number) => *number,
            None => NO_VIEW,
        }
    }

    /// Takes note of the answer to a call of a client that asked to close `closing`, a view of that client, if any: its line's
    /// [`closing_view`](ScriptCall::closing_view), to be asked for before the line is resolved. Out of memory nothing is noted.
    pub fn record(
        &mut self,
        client: u8,
        closing: Option<u32>,
        answer: &Answer,
    ) -> Result<(), NoMemory>
        requires { client < CLIENTS }
        ensures ok { OnOk result (self.new ≡ after_answer self.old client closing answer.now) }
        ensures err { OnErr result (self.new ≡ self.old) }
    {
        match answer {
            Answer::View(ViewReply::Opened(number)) => self.add(client, *number)?,
            Answer::View(ViewReply::TooManyViews) => self.add(client, NO_VIEW)?,
            Answer::Close(CloseReply::Closed) => {
                if let Some(view) = closing {
                    self.take_away(client, view);
                }
            }
            _ => {}
        }
        Ok(())
    }

    // Adds a view to those of a client.
    fn add(&mut self, client: u8, number: u32) -> Result<(), NoMemory>
        requires { client < CLIENTS }
        ensures ok { OnOk result (self.new ≡ slice_set self.old client (client_views self.old client ++ number ∷ [])) }
        ensures err { OnErr result (self.new ≡ self.old) }
    {
        let views = &mut self.by_client[usize::from(client)];
        views.push(number)?;
        Ok(())
    }

    // Takes a view away from a client, whose other views keep their counts.
    fn take_away(&mut self, client: u8, view: u32)
        requires { client < CLIENTS }
        ensures { self.new ≡ slice_set self.old client (slice_set (client_views self.old client) view NO_VIEW) }
    {
        let views = &mut self.by_client[usize::from(client)];
        if let Some(number) = views.get_mut(view as usize) {
            *number = NO_VIEW;
        }
    }
}
