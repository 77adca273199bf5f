//! One generation after another.
ghost use Rattle.std.specs.Prelude.{ℕ, List, []};
ghost use Rattle.std.specs.Bool.{OnTrue, OnFalse};
ghost use Rattle.sws_link.specs.Contents.{IsPrefix};
ghost use Rattle.sws_lane.specs.Keeping.{Keeps, KeepsServing, ServesNext, ServesNone, last_call};
ghost use Rattle.sws_lane.specs.Terms.{AreTerms};
ghost use Rattle.sws_lane.specs.declared.lane.Terms.{Terms as TermsValue};

use crate::generation::{ToldConn, serve_generation};
use crate::keeper::Keeper;
use crate::lane::{Lane, Terms};
use std::alloc::Global;
use std::marker::PhantomData;
use std::sync::Wait;
use std::thread::Threads;
use sws_access::Clerk;
use sws_burst::Bursts;
use sws_conn::{Conn, Talk};
use sws_link::{Link, World};

/// What has become of a lane, for contracts alone. It is a trait so that the loop over generations
/// can be proved whatever that is: what a connection's talk promises has no name in a proof.
trait Leads<S> {
    /// By these terms it has become this, so far.
    ghost leads: { TermsValue → S → S → Type 0 };

    /// By these terms it has come to this end.
    ghost ends: { TermsValue → S → S → Type 0 };
}

impl<W: World, K: Keeper, C: Clerk<W::Link> + Drop> Leads<Lane<W, K>> for Led<W, K, C> {
    ghost leads = { λ terms lane lane_now. KeepsServing W.World W.Link.Link
        ⟦<ToldConn<'static, W::Link, C> as Talk<W::Link>>⟧
        ⟦<Bursts<Conn<'static, W::Link>> as Talk<W::Link>>⟧ K.Keeper terms lane lane_now [] };

    ghost ends = { λ terms lane lane_now. KeepsServing W.World W.Link.Link
        ⟦<ToldConn<'static, W::Link, C> as Talk<W::Link>>⟧
        ⟦<Bursts<Conn<'static, W::Link>> as Talk<W::Link>>⟧ K.Keeper terms lane lane_now
        (last_call lane_now.world) };
}

/// The lane of such a world and keeper, whose lines go to such clerks, for contracts alone.
struct Led<W, K, C> {
    of: PhantomData<(W, K, C)>,
}

/// Serves a further generation, and answers whether it did: not where the world is lost, or the
/// keeper refuses it.
fn serve_next<
    R: Threads + Wait + Sync,
    W: World + Drop + Send,
    K: Keeper,
    C: Clerk<W::Link> + Drop + Send,
>(rt: &R, alloc: Global, terms: &Terms, desk: C::Desk, lane: &mut Lane<W, K>) -> bool
where
    W::Link: Send,
    C::Desk: Send,
    requires { AreTerms terms.now }
    ensures next { OnTrue result (ServesNext W.World W.Link.Link
        ⟦<ToldConn<'static, W::Link, C> as Talk<W::Link>>⟧
        ⟦<Bursts<Conn<'static, W::Link>> as Talk<W::Link>>⟧ K.Keeper terms.now lane.old lane.new) }
    ensures none { OnFalse result (ServesNone W.World W.Link.Link
        ⟦<ToldConn<'static, W::Link, C> as Talk<W::Link>>⟧
        ⟦<Bursts<Conn<'static, W::Link>> as Talk<W::Link>>⟧ K.Keeper terms.now lane.old lane.new) }
{
    lane.totals.are_kept();
    let Some(world) = lane.world.take() else {
        return false;
    };
    if !lane.keeper.begin() {
        lane.world = Some(world);
        return false;
    }
    let (left, told) = serve_generation::<R, W, C>(
        rt,
        alloc,
        terms,
        desk,
        lane.keeper.site(),
        world,
    );
    lane.world = left;
    lane.totals.add(&told.totals);
    lane.keeper.end(told);
    true
}

/// Serves one generation after another, as long as there is a further one. It need not return.
fn serve_all_generations<
    R: Threads + Wait + Sync,
    W: World + Drop + Send,
    K: Keeper,
    C: Clerk<W::Link> + Drop + Send,
    M: Leads<Lane<W, K>>,
>(rt: &R, alloc: Global, terms: &Terms, desk: C::Desk, lane: &mut Lane<W, K>)
where
    W::Link: Send,
    C::Desk: Send,
    requires range { AreTerms terms.now }
    requires begins { M.leads terms.now lane.old lane.old }
    requires onward { (a b c : _) → M.leads terms.now a b → ServesNext W.World W.Link.Link
        ⟦<ToldConn<'static, W::Link, C> as Talk<W::Link>>⟧
        ⟦<Bursts<Conn<'static, W::Link>> as Talk<W::Link>>⟧ K.Keeper terms.now b c → M.leads terms.now a c }
    requires stops { (a b c : _) → M.leads terms.now a b → ServesNone W.World W.Link.Link
        ⟦<ToldConn<'static, W::Link, C> as Talk<W::Link>>⟧
        ⟦<Bursts<Conn<'static, W::Link>> as Talk<W::Link>>⟧ K.Keeper terms.now b c → M.ends terms.now a c }
    ensures { M.ends terms.now lane.old lane.new }
{
    'generations: for _ in rt.forever() {
        if !serve_next::<R, W, K, C>(rt, alloc, terms, desk, lane) {
            return;
        }
    }
    unreachable!()
}

/// What is sent to a front of an input begins what is sent to all of it, for contracts alone. A
/// call does nothing.
fn responses_begin<L: Link, T: Talk<L>>()
    ensures { (hall : T.Contents) (front bytes : List ℕ) → IsPrefix front bytes
        → IsPrefix (T.responses hall front) (T.responses hall bytes) }
{}

/// Serves one generation after another, until the keeper refuses a further one or the world is lost.
/// It need not return.
///
/// There is a list of generations, and each opened the world that the one before left; what
/// [`talk_all`](sws_engine::talk_all) promises holds of each that was opened, out of the keeper's
/// site, and the totals are their sums. The keeper is asked before each, and told after it what has
/// come of it; where the world is still there, it has refused the one after the last. Over a world that tells its links, the k-th connection over
/// all generations is the k-th to come. What it was sent begins the responses to its input out of
/// the site of its generation, and is all of them where it is done.
///
/// With the log each connection tells its lines to a clerk of this desk, as it gives them
/// ([`a_run_tells`](sws_access::a_run_tells)).
pub fn keep_serving<
    R: Threads + Wait + Sync,
    W: World + Drop + Send,
    K: Keeper,
    C: Clerk<W::Link> + Drop + Send,
>(rt: &R, alloc: Global, terms: &Terms, desk: C::Desk, lane: &mut Lane<W, K>)
where
    W::Link: Send,
    C::Desk: Send,
    requires { AreTerms terms.now }
    ensures { Keeps W.World W.Link.Link
        ⟦<ToldConn<'static, W::Link, C> as Talk<W::Link>>⟧
        ⟦<Bursts<Conn<'static, W::Link>> as Talk<W::Link>>⟧ K.Keeper
        terms.now lane.old lane.new }
{
    lane.totals.are_kept();
    responses_begin::<W::Link, ToldConn<'_, W::Link, C>>();
    serve_all_generations::<R, W, K, C, Led<W, K, C>>(rt, alloc, terms, desk, lane);
}
