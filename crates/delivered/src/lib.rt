// The call for a delivered part (document 01).

#![tactic(auto)]

ghost use Rattle.std.specs.Prelude.{◌≡◌};
ghost use Rattle.rules.specs.Handling.{part_of};

// The part of a frame that an answer's start and length name, or an empty part if it does not lie within the frame.
pub fn part(frame: &[u8], start: usize, size: usize) -> &[u8]
    ensures { result.now ≡ part_of frame.now start size }
{
    let Some(end) = start.checked_add(size) else {
        return &[];
    };
    frame.get(start..end).unwrap_or(&[])
}
