//! Words of a list, where places outside have 0.
ghost use Rattle.std.specs.Prelude.{◌≡◌, get_or, slice_set};

pub fn word_at(words: &[u64], index: usize) -> u64
    ensures { result ≡ get_or words.now index 0 }
{
    if index < words.len() { words[index] } else { 0 }
}

pub fn set_word(words: &mut [u64], index: usize, word: u64)
    ensures { words.new ≡ slice_set words.old index word }
{
    if index < words.len() {
        words[index] = word;
    }
}

pub fn number_at(numbers: &[usize], index: usize) -> usize
    ensures { result ≡ get_or numbers.now index 0 }
{
    if index < numbers.len() {
        numbers[index]
    } else {
        0
    }
}

pub fn set_number(numbers: &mut [usize], index: usize, number: usize)
    ensures { numbers.new ≡ slice_set numbers.old index number }
{
    if index < numbers.len() {
        numbers[index] = number;
    }
}
