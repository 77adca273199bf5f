//! What holds of all benches.
ghost use Rattle.std.specs.Prelude.{◌≡◌, ℕ, length, sum_by};
ghost use Rattle.sws_link.specs.LinkItems.{all_bytes};
ghost use Rattle.sws_link.specs.MemLink.{MemLinkState};
ghost use Rattle.sws_link.specs.MemWorld.{MemWorldState};
ghost use Rattle.sws_handlers.specs.declared.ended.Ended.{Ended};
ghost use Rattle.sws_handlers.specs.declared.ended.Served.{Served};
ghost use Rattle.sws_replay.specs.Expected.{by_http};
ghost use Rattle.sws_replay.specs.Runs.{IsServedAlone, ServesAll};
ghost use Rattle.sws_site.specs.Site.{SiteState};
ghost use Rattle.sws_script.specs.Scripted.{script_of};
ghost use Rattle.sws_steps.specs.declared.End.TheVariants.{Done};
ghost use Rattle.sws_conn.specs.Outcome.{outcome_of};
ghost use Rattle.sws_bench.specs.Draws.{draw};
ghost use Rattle.sws_bench.specs.BenchScript.{bytes_from, conn_from, bench_conns, bench_bytes, HasRoom};

/// The pieces of a connection are its bytes, and whatever it asks for, it is done in the end.
pub fn each_connection_is_done()
    ensures sends { (state : ℕ) → all_bytes (script_of (conn_from state)).items ≡ bytes_from state }
    ensures done { (site : SiteState) (state : ℕ)
        → (outcome_of site (script_of (conn_from state))).end ≡ Done }
{}

/// Out of a site with room for it, as that of a bench is, a connection that was served as if it were
/// alone was read to its end, and so what the links of a bench gave is all that its connections
/// send.
pub fn all_that_is_sent_is_read()
    ensures one { (site : SiteState) (state : ℕ) (served : Served MemLinkState)
        → HasRoom site → IsServedAlone (by_http site) (conn_from state) served
        → served.read ≡ length (bytes_from state) }
    ensures all { (site : SiteState) (number count : ℕ) (ended : Ended MemWorldState MemLinkState)
        → HasRoom site → ServesAll (by_http site) (bench_conns number count) ended
        → sum_by (λ conn. conn.read) ended.served.items ≡ bench_bytes number count }
{}

/// The first draws of a generator that begins with 1, as another program has found them.
pub fn the_first_draws()
    ensures first { draw 1 0 ≡ 15496 }
    ensures second { draw 1 1 ≡ 24200 }
    ensures third { draw 1 2 ≡ 33046 }
{}
