// Everything that differs by level. A level is a number, as in `End`: one other than 4 is taken as 2 here; which levels
// there are is `ends::is_level`.
ghost use Rattle.std.specs.Prelude.{◌≡◌};
ghost use Rattle.telegram.specs.Levels.{level_of, top_bits, word_length, added};
ghost use Rattle.telegram.specs.Telegrams.{check_word};

// The level that a command's top two bits give: 4, 2 or 0, or none. It is no `From`: an `Option<u32>` is not ours.
#[tactic(auto, using(ground::specs::Choice::tests), unfolding(crate::specs::Levels::level_of))]
pub fn level_of(command: u8) -> Option<u32>
    ensures { result ≡ level_of command }
{
    match command / 64 {
        2 => Some(4),
        0 => Some(2),
        3 => Some(0),
        _ => None,
    }
}

// The top two bits of the level's commands.
#[tactic(auto, using(ground::specs::Choice::tests), unfolding(crate::specs::Levels::top_bits))]
pub fn top_bits(level: u32) -> u32
    ensures { result ≡ top_bits level }
{
    if level == 4 { 2 } else { 0 }
}

// How many bytes the level's check word has.
#[tactic(auto, using(ground::specs::Choice::tests), unfolding(crate::specs::Levels::word_length))]
pub fn word_length(level: u32) -> usize
    ensures { result ≡ word_length level }
{
    if level == 4 { 6 } else { 4 }
}

// What authentication adds to the number received.
#[tactic(auto, using(ground::specs::Choice::tests), unfolding(crate::specs::Levels::added))]
pub fn added_number(level: u32) -> u32
    ensures { result ≡ added level }
{
    if level == 4 { 1 } else { 2 }
}

// The level's check word of two runs, one after the other. The check and the writers have it from here; neither lays
// the runs end to end.
#[tactic(auto, using(ground::specs::Choice::tests), unfolding(crate::specs::Telegrams::check_word, crate::specs::Levels::width, crate::specs::Levels::generator))]
pub fn word_of(level: u32, first: &[u8], second: &[u8]) -> u64
    ensures { result ≡ check_word level first.now second.now }
{
    if level == 4 {
        return checkword::word48(first, second);
    }
    checkword::word32(first, second) as u64
}
