// What a program is given: plan bytes, as many as these say themselves, and then more (the report's letters; nothing that the page looks at).
#![tactic(auto)]

ghost use Rattle.std.specs.Prelude.{◌≡◌, ◌<◌};
ghost use Rattle.inputs.specs.Inputs.{total_of, no_plan, wanted as Inputs·wanted};

// How many bytes of an input are its plan, as these say themselves.
pub fn total(input: &[u8]) -> usize
    ensures { (result ≡ total_of input.now) × (result < 65536) }
{
    endian::byte_at(input, 14) + 256 * endian::byte_at(input, 15)
}

// Refusal 1.
#[tactic(auto, unfolding(crate::specs::Inputs::no_plan))]
pub fn no_plan(input: &[u8]) -> bool
    ensures { result ≡ no_plan input.now }
{
    let end = total(input);
    input.len() < 16 || end < 16 || input.len() < end
}

// How many bytes of an input are wanted for its plan, as far as these say.
pub fn wanted(input: &[u8]) -> usize
    ensures { (result ≡ Inputs·wanted input.now) × (result < 65536) }
{
    total(input).max(16)
}
