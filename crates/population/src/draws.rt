ghost use Rattle.std.specs.Prelude.{◌≡◌, ℕ, Bool, ◌<◌, ◌≤◌, ◌^◌, length, IsTrue};
ghost use Rattle.std.specs.List.{list_all};
ghost use Rattle.std.specs.List.Sorted.{IsPermutation};
ghost use Rattle.rows.specs.Text.{is_printable_byte};
ghost use Rattle.number_draws.specs.Words.{seeded};
ghost use Rattle.number_draws.specs.Draws.{random_of};
ghost use Rattle.population.specs.Rows.{is_digit, is_capital, is_letter_or_digit, IsTextOf, IsDrawnText, IsOpeningZip, IsOpeningAddress};

use number_draws::NumberDraws;
use schema::{Address, Text};

const DIGITS: &[u8] = b"0123456789";

const LETTERS: &[u8] = b"ABCDEFGHIJKLMNOPQRSTUVWXYZ";

const DIGITS_AND_LETTERS: &[u8] = b"0123456789ABCDEFGHIJKLMNOPQRSTUVWXYZabcdefghijklmnopqrstuvwxyz";

const ORIGINAL: &str = "ORIGINAL";

/// The random values of one seed, in the order in which they are drawn. The same seed gives the same values.
#[derive(Drop)]
pub(crate) struct Draws {
    numbers: NumberDraws,
}

impl Draws {
    pub(crate) fn new(seed: u32) -> Self
        ensures { result.numbers ≡ seeded seed }
    {
        Draws {
            numbers: NumberDraws::new(u64::from(seed)),
        }
    }

    /// Returns a whole number from `low` to `high`, both included.
    pub(crate) fn random(&mut self, low: u32, high: u32) -> u32
        requires { low ≤ high }
        ensures value { result ≡ random_of low high self.old.numbers }
        ensures low { low ≤ result }
        ensures high { result ≤ high }
    {
        self.numbers.random(low, high)
    }

    /// Returns a non-uniform random number from `low` to `high` (clause 2.1.6). The constant C of the clause is 0.
    pub(crate) fn nu_rand(&mut self, bits: u32, low: u32, high: u32) -> u32
        requires { low ≤ high }
        ensures low { low ≤ result }
        ensures high { result ≤ high }
    {
        self.numbers.nu_rand(bits, 0, low, high)
    }

    /// Shuffles the numbers.
    pub(crate) fn shuffle(&mut self, numbers: &mut [u32])
        requires { length numbers.old ≤ 2 ^ 32 }
        ensures { IsPermutation numbers.old numbers.new }
    {
        self.numbers.shuffle(numbers);
    }

    /// Returns a text of `low` to `high` digits and letters.
    pub(crate) fn text<const WIDTH: usize>(&mut self, low: u32, high: u32) -> Text<WIDTH>
        requires order { low ≤ high }
        requires fits { high ≤ WIDTH }
        ensures { IsDrawnText low high result }
    {
        let count = self.random(low, high);
        self.characters(count, DIGITS_AND_LETTERS)
    }

    // Returns `count` capital letters.
    fn letters<const WIDTH: usize>(&mut self, count: u32) -> Text<WIDTH>
        ensures { count ≤ WIDTH → IsTextOf is_capital count count result }
    {
        self.characters(count, LETTERS)
    }

    /// Returns `count` digits.
    pub(crate) fn digits<const WIDTH: usize>(&mut self, count: u32) -> Text<WIDTH>
        ensures { count ≤ WIDTH → IsTextOf is_digit count count result }
    {
        self.characters(count, DIGITS)
    }

    /// Returns a text of `low` to `high` digits and letters. In about one of ten, the word `ORIGINAL` replaces eight of
    /// them at a random position (clause 4.3.3.1).
    pub(crate) fn original_text<const WIDTH: usize>(&mut self, low: u32, high: u32) -> Text<WIDTH>
        requires room { 8 ≤ low }
        requires order { low ≤ high }
        requires fits { high ≤ WIDTH }
        ensures { IsDrawnText low high result }
    {
        let text = self.text(low, high);
        if self.random(1, 10) == 1 {
            self.with_original(&text)
        } else {
            text
        }
    }

    /// Returns a random address (clause 4.3.2.7 for its zip code).
    pub(crate) fn address(&mut self) -> Address
        ensures { IsOpeningAddress result }
    {
        Address {
            street_1: self.text(10, 20),
            street_2: self.text(10, 20),
            city: self.text(10, 20),
            state: self.letters(2),
            zip: self.zip(),
        }
    }

    // Returns four digits followed by `11111`.
    fn zip(&mut self) -> Text<9>
        ensures { IsOpeningZip result }
    {
        let mut zip = self.digits(4);
        zip.push_fitting("11111");
        zip
    }

    // Returns the text with the word `ORIGINAL` written over it at a random position.
    fn with_original<const WIDTH: usize>(&mut self, text: &Text<WIDTH>) -> Text<WIDTH>
        requires room { 8 ≤ length text.now }
        requires short { length text.now < 2 ^ 32 }
        ensures count { length result ≡ length text.now }
        ensures each { IsTrue (list_all is_letter_or_digit text.now)
            → IsTrue (list_all is_letter_or_digit result) }
    {
        let words = text.as_str();
        let place = self.random(0, words.len() as u32 - 8) as usize;
        let mut original = Text::new();
        original.push_fitting(&words[..place]);
        original.push_fitting(ORIGINAL);
        original.push_fitting(&words[place + ORIGINAL.len()..]);
        original
    }

    // Returns `count` characters of the alphabet, or as many as fit.
    fn characters<const WIDTH: usize>(&mut self, count: u32, alphabet: &[u8]) -> Text<WIDTH>
        requires some { 0 < length alphabet.now }
        requires short { length alphabet.now < 2 ^ 32 }
        requires printable { IsTrue (list_all is_printable_byte alphabet.now) }
        ensures count { count ≤ WIDTH → length result ≡ count }
        ensures each { (kind : ℕ → Bool) → IsTrue (list_all kind alphabet.now)
            → IsTrue (list_all kind result) }
    {
        let count = WIDTH.min(count as usize);
        let mut bytes = [b' '; WIDTH];
        for place in 0..count {
            bytes[place] = self.character(alphabet);
        }
        match Text::from_bytes(&bytes[..count]) {
            Ok(text) => text,
            Err(_) => Text::new(),
        }
    }

    // Returns one character of the alphabet.
    fn character(&mut self, alphabet: &[u8]) -> u8
        requires some { 0 < length alphabet.now }
        requires short { length alphabet.now < 2 ^ 32 }
        ensures { (kind : ℕ → Bool) → IsTrue (list_all kind alphabet.now) → IsTrue (kind result) }
    {
        alphabet[self.random(0, alphabet.len() as u32 - 1) as usize]
    }
}
