//! The program's run over any source, sink, stores and keeper.

ghost use Rattle.std.specs.Prelude.{◌≡◌, ◌≤◌, [], length, map, string_bytes};
ghost use Rattle.wtf_dev.specs.Streams.{SourceView};
ghost use Rattle.wtf_words.specs.Words.{asked_of};
ghost use Rattle.wtf_image.specs.Rules.{size_in};
ghost use Rattle.wtf_serve.specs.Endings.{devices};
ghost use Rattle.wtf_serve.specs.Stocks.{HandsOver};
ghost use Rattle.wtf_serve.specs.Generated.{IsGeneratedRun};
ghost use Rattle.wtf_serve.specs.Program.{IsProgramRun, IsStatusOf, LeavesAll};

use crate::service::{OUT_OF_MEMORY, WORDS_REFUSED, serve};
use std::alloc::Global;
use wtf_base::Settings;
use wtf_dev::{Keeper, Shelf, Sink, SliceStore, Source};
use wtf_gen::GeneratedScript;
use wtf_summary::Summarizing;
use wtf_words::{Recipe, Script, WordsError, read_words};

/// Answers a script over the servers that the words ask for: `--servers N`, 1 to 16, or 4; `--replicas N`, how many copies
/// each slice has, 1 to 3 and at most one a server, or 2; `--region N`, the size of a region, 64 to 1,048,576 bytes, or
/// 65,536. What the keeper holds has settings of its own, which win over these. With `--gen N`, 0 to
/// 18,446,744,073,709,551,615, and `--lines N`, 1 to 1,000,000, nothing is read: the script is one of so many lines that is
/// made from the number, and behind the line of the settings stands only a summary of its answers, in 8 lines, which is
/// written with the last of them, before the tree is saved. Where the words ask for anything else the status is 2, and then
/// no device is touched; with fewer stores than servers it is 2 as well, and the keeper is loaded at most. Else the status is that of `serve`: 0 at the end of
/// the script, where the tree was saved, 1 there where a line is bad, 3 where reading failed, 4 where writing failed, 5
/// where the tree could not be saved, 6 where the image is refused, 7 for want of memory, 8 where the keeper could not be
/// loaded, and 9 for a script that is too long.
pub fn wtf<I: Source, O: Sink, S: SliceStore, K: Keeper>(
    alloc: Global,
    words: &[String],
    script: &mut I,
    out: &mut O,
    shelf: &mut Shelf<S>,
    keeper: &mut K,
) -> u8
    ensures status { IsStatusOf (size_in S.kind shelf.old) (length shelf.old)
        (asked_of (map string_bytes words.now)) (K.view keeper.old).held result }
    ensures left { result ≡ 2 → LeavesAll (script.old, script.new) (out.old, out.new)
        (shelf.old, shelf.new) (K.follows keeper.old keeper.new []) }
    ensures handed { HandsOver (K.follows keeper.old keeper.new) }
    ensures served { IsProgramRun S.kind (K.follows keeper.old keeper.new)
        (asked_of (map string_bytes words.now)) result
        (devices (I.view script.old) (O.view out.old) shelf.old (K.view keeper.old))
        (devices (I.view script.new) (O.view out.new) shelf.new (K.view keeper.new)) }
{
    let asked = match read_words(alloc, words) {
        Ok(asked) => asked,
        Err(WordsError::Refused) => return WORDS_REFUSED,
        Err(WordsError::Memory) => return OUT_OF_MEMORY,
    };
    match asked.script {
        Script::Read => {
            let status = serve(alloc, asked.settings, script, out, shelf, keeper);
            return status;
        }
        Script::Generated(recipe) => {
            let status = serve_generated(alloc, asked.settings, recipe, out, shelf, keeper);
            return status;
        }
    }
}

/// Answers the script of a recipe, and shows its output by the first line and a summary of the others.
fn serve_generated<O: Sink, S: SliceStore, K: Keeper>(
    alloc: Global,
    settings: Settings,
    recipe: Recipe,
    out: &mut O,
    shelf: &mut Shelf<S>,
    keeper: &mut K,
) -> u8
    requires lines { 1 ≤ recipe.lines }
    ensures served { (source : SourceView) →
        IsGeneratedRun S.kind (K.follows keeper.old keeper.new) settings recipe result
        (devices source (O.view out.old) shelf.old (K.view keeper.old))
        (devices source (O.view out.new) shelf.new (K.view keeper.new)) }
    ensures unwritten { result ≡ 2 → out.new ≡ out.old }
    ensures untouched { result ≡ 2 → shelf.new ≡ shelf.old }
    ensures unkept { result ≡ 2 → K.follows keeper.old keeper.new [] }
    ensures handed { HandsOver (K.follows keeper.old keeper.new) }
{
    let mut script = GeneratedScript::new(recipe.number, recipe.lines);
    let mut shown = Summarizing::new(out, recipe.lines);
    let status = serve(alloc, settings, &mut script, &mut shown, shelf, keeper);
    let _ = shown.finish();
    status
}
