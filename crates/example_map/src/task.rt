//! What is done with an item.
ghost use Rattle.std.specs.Prelude.{◌≡◌, ◌==◌, count_by};

/// A function, as contracts know it.
pub trait Task {
    /// What it takes.
    type Item: Drop;

    /// What it gives.
    type Out: Drop;

    /// What it gives for an item.
    ghost of: { Self.Item → Self.Out };

    /// What it gives for an item. It takes no memory.
    fn run(&self, item: Self::Item) -> Self::Out
        ensures { result ≡ of item };
}

/// Counts the spaces of a line, which part its words.
#[derive(Drop)]
pub struct Words;

impl Task for Words {
    type Item = Vec<u8>;

    type Out = usize;

    ghost of = { λ line. count_by (λ byte. byte == 32) line.items };

    fn run(&self, item: Vec<u8>) -> usize
        ensures { result ≡ count_by (λ byte. byte == 32) item.items }
    {
        item.iter().filter(|byte| **byte == b' ').count()
    }
}
