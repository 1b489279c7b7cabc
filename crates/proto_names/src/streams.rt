ghost use Rattle.std.specs.Prelude.{◌≡◌, ◌≢◌, ℕ, ◌<◌};
ghost use Rattle.draw_spec.specs.Streams.{instance_stream as stream_of_instance, input_stream as stream_of_input};

/// The first stream of an instance.
const FIRST_INSTANCE: u64 = 72_057_594_037_927_936;

/// The first stream of an input.
const FIRST_INPUT: u64 = 144_115_188_075_855_872;

/// The stream of an instance: 2^56 and its number.
pub fn instance_stream(id: u32) -> u64
    ensures value { result ≡ stream_of_instance id }
    ensures of_one_instance { (other : ℕ) → other ≢ id → stream_of_instance other ≢ result }
    ensures of_no_input { (circuit input : ℕ) → circuit < 65536 → input < 65536 → stream_of_input circuit input ≢ result }
{
    FIRST_INSTANCE + u64::from(id)
}

/// The stream by which an input of a circuit is encrypted: 2 * 2^56, 2^16 for each circuit before it,
/// and its number.
pub fn input_stream(circuit: u32, input: u32) -> u64
    requires circuit { circuit < 65536 }
    requires input { input < 65536 }
    ensures value { result ≡ stream_of_input circuit input }
    ensures of_one_circuit { (other i : ℕ) → i < 65536 → other ≢ circuit → stream_of_input other i ≢ result }
    ensures of_one_input { (other : ℕ) → other ≢ input → stream_of_input circuit other ≢ result }
{
    FIRST_INPUT + 65_536 * u64::from(circuit) + u64::from(input)
}
