//! Adds the words of lists to a line: node ids, objects and repair requests. `lines` calls them.

ghost use Rattle.std.specs.Prelude.{◌≡◌, OnOk, map};
ghost use Rattle.norm_ext.specs.Lists.{nodes_of, objects_of};
ghost use Rattle.norm_ext.specs.Requests.{items_named};
ghost use Rattle.norm_ext.specs.RequestView.{request_of};
ghost use Rattle.norm_text.specs.Words.{with_piece, with_word, joined, numbers_word};
ghost use Rattle.norm_show.specs.Words.{item_word, request_word, requests_word};

use norm_ext::items::split_item;
use norm_ext::places::{NODE, OBJECT};
use norm_ext::{Item, Request, Requests, read_16, read_32};
use norm_text::Line;
use std::alloc::AllocError;

/// Adds node ids, separated by commas, or a dash if there are none. Octets after the last whole id are not shown.
pub(crate) fn put_nodes(line: &mut Line, list: &[u8]) -> Result<(), AllocError>
    ensures { OnOk result (line.new ≡ with_word line.old (numbers_word (nodes_of list.now))) }
{
    if list.len() < NODE {
        return line.word(b"-");
    }
    line.number(u64::from(read_32(list, 0)))?;
    let mut rest = list.split_at(NODE).1;
    // Proof: the label names the loop for its invariant.
    'nodes: while rest.len() >= NODE {
        line.number_piece(b',', u64::from(read_32(rest, 0)))?;
        rest = rest.split_at(NODE).1;
    }
    Ok(())
}

/// Adds object transport ids, separated by commas, or a dash if there are none. Octets after the last whole id are not shown.
pub(crate) fn put_objects(line: &mut Line, list: &[u8]) -> Result<(), AllocError>
    ensures { OnOk result (line.new ≡ with_word line.old (numbers_word (objects_of list.now))) }
{
    if list.len() < OBJECT {
        return line.word(b"-");
    }
    line.number(u64::from(read_16(list, 0)))?;
    let mut rest = list.split_at(OBJECT).1;
    // Proof: the label names the loop for its invariant.
    'objects: while rest.len() >= OBJECT {
        line.number_piece(b',', u64::from(read_16(rest, 0)))?;
        rest = rest.split_at(OBJECT).1;
    }
    Ok(())
}

/// Adds a separator and an item of a request: object, block and symbol, with points between them.
fn put_item(line: &mut Line, by: u8, item: Item) -> Result<(), AllocError>
    ensures { OnOk result (line.new ≡ with_piece by line.old (item_word item)) }
{
    line.joined_piece(
        by,
        b'.',
        u64::from(item.object),
        &[u64::from(item.id.block), u64::from(item.id.symbol)],
    )
}

/// Adds a colon and the items of a request, separated by plus signs. Octets after the last whole item are not shown.
fn put_items(line: &mut Line, items: &[u8]) -> Result<(), AllocError>
    ensures { OnOk result (line.new ≡ with_piece 58 line.old (joined 43 (map item_word (items_named items.now)))) }
{
    let Some((first, behind)) = split_item(items) else {
        return line.piece(b':', b"");
    };
    put_item(line, b':', first)?;
    let mut rest = behind;
    // Proof: the label names the loop for its invariant.
    'items: while let Some((item, behind)) = split_item(rest) {
        put_item(line, b'+', item)?;
        rest = behind;
    }
    Ok(())
}

/// Adds a separator and a request: its form, its flags and its items, with colons between them.
fn put_request(line: &mut Line, by: u8, request: &Request<'_>) -> Result<(), AllocError>
    ensures { OnOk result (line.new ≡ with_piece by line.old (request_word (request_of request.now))) }
{
    line.number_piece(by, u64::from(request.form.number()))?;
    line.number_piece(b':', u64::from(request.flags))?;
    put_items(line, request.items)?;
    Ok(())
}

/// Adds repair requests, separated by commas, or a dash if there are none.
pub(crate) fn put_requests(line: &mut Line, list: &Requests<'_>) -> Result<(), AllocError>
    ensures { OnOk result (line.new ≡ with_word line.old (requests_word list.now)) }
{
    let mut requests = list.iter();
    let Some(first) = requests.next() else {
        return line.word(b"-");
    };
    put_request(line, b' ', &first)?;
    for request in requests {
        put_request(line, b',', &request)?;
    }
    Ok(())
}
