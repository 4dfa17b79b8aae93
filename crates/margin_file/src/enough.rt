//! How much of a file decides its answer.
ghost use Rattle.std.specs.Prelude.{◌≡◌};
ghost use Rattle.margin_file.specs.Cuts.{Enough};

/// The most bytes that need be read of a file: 100,000 lines of 200 bytes, each with the byte that ends it. What lies beyond changes no answer, since by then either 100,000 lines have ended or some line has more than 200 bytes.
pub fn most_bytes() -> u64
    ensures value { result ≡ 20100000 }
    ensures enough { Enough result }
{
    20_100_000
}
