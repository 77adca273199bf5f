mod sums;
mod weaves;
mod workers;
