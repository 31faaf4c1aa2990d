// Where a client's items and nodes come from.
ghost use Rattle.std.specs.Prelude.{◌≡◌, None, IfOk, IfErr};
ghost use Rattle.su_bytes.specs.declared.refusals.Refusal.TheVariants.{NoMemory};
ghost use Rattle.su_client.specs.Link.{Follows};
ghost use Rattle.su_part_tree.specs.Loading.{IsLoadRefusal};
ghost use Rattle.su_view.specs.Viewed.{IsClear};

use std::alloc::Global;
use std::io::{Read, Write};
use su_block::{BlockSource, Checked};
use su_block_cache::BlockCache;
use su_bytes::Refusal;
use su_client::{Client, Outbox};
use su_scratch::{FileScratch, ScratchBlocks};
use su_view::View;

/// How many items a client's cache keeps.
const MOST_CACHED: usize = 1_024;

/// A client's source: a cache over what is checked of what its scratch or a server gives. Items for
/// the server wait to be put.
pub type LinkSource<R, W> = BlockCache<Checked<ScratchBlocks<FileScratch, Outbox<R, W>>>>;

/// Makes a client's source over a link, with nothing in its cache, which keeps 1,024 items at most.
/// It has no scratch. Fails only with `NoMemory`.
pub fn source_over<R: Read + Drop, W: Write + Drop>(
    alloc: Global,
    link: Client<R, W>,
) -> Result<LinkSource<R, W>, Refusal>
    ensures link { IfOk result (λ source. source.source.source.source.client ≡ link) }
    ensures none { IfOk result (λ source. source.source.source.scratch.file ≡ None) }
    ensures refused { IfErr result (λ e. e ≡ NoMemory) }
{
    source_with(alloc, FileScratch::none(), link)
}

/// Makes a client's source over a scratch and a link, as `source_over` does over a link alone.
pub fn source_with<R: Read + Drop, W: Write + Drop>(
    alloc: Global,
    scratch: FileScratch,
    link: Client<R, W>,
) -> Result<LinkSource<R, W>, Refusal>
    ensures link { IfOk result (λ source. source.source.source.source.client ≡ link) }
    ensures scratch { IfOk result (λ source. source.source.source.scratch ≡ scratch) }
    ensures refused { IfErr result (λ e. e ≡ NoMemory) }
{
    let outbox = Outbox::new(alloc, link);
    let blocks = ScratchBlocks::new(alloc, scratch, outbox);
    BlockCache::new(alloc, Checked::new(blocks), MOST_CACHED)
}

/// Leaves the tree of a view in its scratch, but for the digests of its i-tables, as `View::shed` does,
/// and then what is kept of live operations, as `View::leave_kept` does. Refused as a load is, and with
/// `SourceFailed` where there is no scratch: what isn't left then stays in memory.
pub fn leave_in_scratch<R: Read + Drop, W: Write + Drop>(
    view: &mut View<LinkSource<R, W>>,
) -> Result<(), Refusal>
    ensures holding { view.new.holding ≡ view.old.holding }
    ensures refused { IsClear ⟦<LinkSource<R, W> as BlockSource>⟧.may_give view.new
        → IfErr result IsLoadRefusal }
    ensures clear { IsClear ⟦<LinkSource<R, W> as BlockSource>⟧.may_give view.new
        → IsClear ⟦<LinkSource<R, W> as BlockSource>⟧.may_give view.old }
    ensures follows { Follows view.old.source.source.source.source.client.link
        view.new.source.source.source.source.client.link }
{
    view.source_mut().source_mut().source_mut().leave(true);
    let left = leave_on_source(view);
    view.source_mut().source_mut().source_mut().leave(false);
    left
}

/// Leaves the tree of a view on its source, and then what is kept of live operations. Refused as
/// `leave_in_scratch` is.
fn leave_on_source<S: BlockSource>(view: &mut View<S>) -> Result<(), Refusal>
    ensures holding { view.new.holding ≡ view.old.holding }
    ensures refused { IsClear S.may_give view.new → IfErr result IsLoadRefusal }
    ensures clear { IsClear S.may_give view.new → IsClear S.may_give view.old }
    ensures follows { S.follows view.old.source view.new.source }
{
    view.shed()?;
    view.leave_kept()
}
