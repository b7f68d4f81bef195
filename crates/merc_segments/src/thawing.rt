//! The values of a block put onto a heap.
ghost use Rattle.std.specs.Prelude.{◌≡◌, length, take, IfOk, OnOk, OnErr};
ghost use Rattle.merc_value.specs.Block.{AreLower, root_values};
ghost use Rattle.merc_value.specs.Sharing.{AreMoved};
ghost use Rattle.merc_heap.specs.Heap.{Keeps};
ghost use Rattle.merc_segments.specs.Segments.{AreWordsFor};

use merc_base::NoMemory;
use merc_heap::Heap;
use merc_value::{Block, Cell, Word, moved_all};

/// Puts the values of a block's roots onto a heap, behind its cells, and gives a word for each, in order. Each cell of the block
/// is put there once. Where memory is refused the heap is unchanged.
pub fn thaw(block: &Block, heap: &mut Heap) -> Result<Vec<Word>, NoMemory>
    ensures words { IfOk result (λ words. AreWordsFor heap.new (root_values block.now) words.items) }
    ensures kept { OnOk result (Keeps (length heap.old) heap.old heap.new) }
    ensures front { OnOk result (take (length heap.old) heap.new ≡ heap.old) }
    ensures err { OnErr result (heap.new ≡ heap.old) }
{
    let mark = heap.mark();
    match thaw_roots(block, heap) {
        Ok(words) => Ok(words),
        Err(refused) => {
            heap.cut_to(mark);
            Err(refused)
        }
    }
}

// The words for the values of the roots. Where memory is refused, some cells stand behind those of the heap.
fn thaw_roots(block: &Block, heap: &mut Heap) -> Result<Vec<Word>, NoMemory>
    ensures words { IfOk result (λ words. AreWordsFor heap.new (root_values block.now) words.items) }
    ensures kept { Keeps (length heap.old) heap.old heap.new }
    ensures front { take (length heap.old) heap.new ≡ heap.old }
{
    let words = thaw_cells(block.cells(), heap)?;
    moved_all(heap.alloc(), &words, block.roots())
}

// The words for the values of cells, by place. Where memory is refused, some cells stand behind those of the heap.
fn thaw_cells(cells: &[Cell], heap: &mut Heap) -> Result<Vec<Word>, NoMemory>
    requires lower { AreLower cells.now }
    ensures words { IfOk result (λ words. AreMoved cells.now heap.new words.items) }
    ensures count { IfOk result (λ words. length words.items ≡ length cells.now) }
    ensures kept { Keeps (length heap.old) heap.old heap.new }
    ensures front { take (length heap.old) heap.new ≡ heap.old }
{
    let alloc = heap.alloc();
    let mut words = Vec::new(alloc);
    for cell in cells {
        let arguments = moved_all(alloc, &words, &cell.arguments)?;
        words.push(heap.build(cell.symbol, &arguments)?)?;
    }
    Ok(words)
}
