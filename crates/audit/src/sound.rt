// A run file whose header was found to be sound.
ghost use Rattle.std.specs.Prelude.{◌≡◌, ◌*◌, ◌≤◌, length};

use files::run_file::RunFile;

#[derive(Clone, Copy)]
pub(crate) struct SoundFile<'a> {
    pub(crate) file: RunFile<'a>,
    ghost few_cards: { (1 ≤ file.header.cards) × (file.header.cards ≤ 8) },
    ghost few_words: { (1 ≤ file.header.size) × (file.header.size ≤ 1024) },
    ghost words_whole: { length file.words.now ≡ 4 * file.header.size },
}
