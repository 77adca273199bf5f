//! What words order. Which words are a command line, `run_cases` shows.
use mely_history::Shape;
use std::process::Abort;
use sws_words::{Order, WordFault, read_words};

/// The words of a line, which stand one space apart.
fn words_of(rt: &(impl AllocGlobal + Abort), line: &str) -> Vec<String> {
    let mut words = Vec::new(rt.alloc());
    for word in line.split(' ') {
        let word = String::from_str(rt.alloc(), word).expect(rt, "memory");
        words.push(word).expect(rt, "memory");
    }
    words
}

/// What a line orders.
fn ordered(rt: &(impl AllocGlobal + Abort), line: &str) -> Result<Order, WordFault> {
    read_words(rt.alloc(), &words_of(rt, line))
}

/// Whether a shape is the usual one, but for two workers and this cost.
fn is_of_two(shape: &Shape, cost: u32) -> bool {
    shape.cores == 2
        && shape.shards == 1
        && shape.batch == 10
        && shape.group == 4
        && shape.steal_cost == cost
}

/// Whether a replay of these values is ordered, with the shape's defaults but for two.
fn is_replay(order: &Order) -> bool {
    match order {
        Order::Replay {
            folder,
            shape,
            date,
            journal,
            schedule,
            log,
        } => {
            folder.as_str() == "S"
                && *date == Some(7)
                && *journal
                && !*schedule
                && *log
                && is_of_two(shape, 5)
        }
        _ => false,
    }
}

/// Whether Gopher is ordered, with these values.
fn is_gopher(order: &Order) -> bool {
    match order {
        Order::Gopher {
            folder,
            host,
            port,
            connections,
            shape,
            journal,
        } => {
            folder.as_str() == "S"
                && host.as_str() == "h.x"
                && *port == 70
                && *connections == None
                && *journal
                && shape.cores == 2
        }
        _ => false,
    }
}

/// Whether the order is one, of which this holds.
fn is_replay_of(rt: &(impl AllocGlobal + Abort), line: &str) -> bool {
    match &ordered(rt, line) {
        Ok(order) => is_replay(order),
        Err(_) => false,
    }
}

fn is_gopher_of(rt: &(impl AllocGlobal + Abort), line: &str) -> bool {
    match &ordered(rt, line) {
        Ok(order) => is_gopher(order),
        Err(_) => false,
    }
}

#[test]
fn defaults_and_values_come_where_they_belong(rt: HostRuntime) {
    let line = "replay --cost=5 --journal S --workers +2 --date 007 --log";
    assert!(rt; is_replay_of(&rt, line));
    let line = "gopher --journal S --port 70 --host h.x --workers 2";
    assert!(rt; is_gopher_of(&rt, line));
}
