//! Laws over moments of a run, and over runs.
ghost use Rattle.std.specs.Prelude.{◌≡◌, ◌<◌, ℕ, List, length};
ghost use Rattle.mely_net.specs.Bounds.{AreAt, Mail, OneWaits};
ghost use Rattle.mely_net.specs.Runs.{HaveFollowed, HasOneHistory, Run};
ghost use Rattle.mely_net.specs.declared.client.Client.{Client};

use crate::service::Service;
use sws_link::{Link, World};

/// Of each connection one request at most waits for a cell: where both are as their handlers leave
/// them, and the connection was replied no more than the cell has sent to it, the cell has received
/// all that the connection has sent to it, but for one. So the queue of a cell has no more requests
/// than there are connections.
pub fn one_request_of_a_connection_waits<S: Service, W: World + Drop>()
    ensures { (service : S) (client cell : ℕ)
        (of_client of_cell : Mail W W.Link S.Request S.Reply)
        (value : Client W.Link S.Request S.Reply W.Link.Link) (kept : S.Cell)
        → AreAt (S.rules_of service) W.Link.Link client cell of_client of_cell value kept
        → OneWaits (S.rules_of service) W.Link.Link client cell of_client of_cell }
{}

/// Over runs that follow one another, each on the cells that the one before it left, each cell has
/// one sequential history: its exchanges run after run are steps of the service, from the value that
/// the first run began with to the one that the last run left.
pub fn a_cell_has_one_history_along_all_runs<S: Service, W: World + Drop>()
    ensures { (service : S) (cells last : List S.Cell)
        (runs : List (Run S.Cell W W.Link S.Request S.Reply W.Link.Link)) (cell : ℕ)
        → length cells ≡ (S.rules_of service).cells → cell < (S.rules_of service).cells
        → (followed : HaveFollowed (S.rules_of service) W.Link.Link cells runs last)
        → HasOneHistory (S.rules_of service) W.Link.Link cell cells runs last followed }
{}
