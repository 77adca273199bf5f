//! The page of `mely_log`.
ghost use Rattle.std.specs.Prelude.{◌≡◌, ◌<◌, ◌+◌, ◌^◌, ◌++◌, ◌∷◌, [], sum};

use mely_log::Log;
use std::test::Fail;

#[derive(Drop)]
struct Till {
    total: u64,
    paid: Log<u64>,
    ghost adds_up: { sum paid.items ≡ total },
}

impl Till {
    fn pay(&mut self, amount: u64)
        requires { self.old.total + amount < 2 ^ 64 }
        ensures { self.new.paid.items ≡ self.old.paid.items ++ amount ∷ [] }
    {
        self.total += amount;
        self.paid.push(&amount);
    }
}

#[test]
fn a_till_keeps_a_sum_and_knows_its_parts(rt: HostRuntime) -> Result<(), Fail> {
    let mut till = Till {
        total: 0,
        paid: Log::new(),
    };
    till.pay(3);
    till.pay(4);
    assert!(rt; till.total == 7);
    Ok(())
}
