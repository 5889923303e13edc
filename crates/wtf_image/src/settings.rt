//! The rules of settings and numbers.

ghost use Rattle.std.specs.Prelude.{◌≡◌, ◌<◌, IfSome, IfNone};
ghost use Rattle.std.specs.List.{list_all};
ghost use Rattle.wtf_imagefmt.specs.Rows.{file_rows, image_rows};
ghost use Rattle.wtf_image.specs.Rules.{AreGoodSettings, is_before, is_node_before};
ghost use Rattle.wtf_image.specs.Loading.{AreSettingsOf};

use wtf_base::{InodeId, Settings};
use wtf_imagefmt::{FileRecord, Image, PathRecord};
use wtf_values::Node;

/// The settings of an image; none where a rule of settings and numbers is broken.
pub(crate) fn good_settings(image: &Image) -> Option<Settings>
    ensures good { IfSome result (λ s. AreGoodSettings (image_rows image.now)) }
    ensures settings { IfSome result (AreSettingsOf (image_rows image.now)) }
    ensures bad { IfNone result (AreGoodSettings (image_rows image.now) → ⊥) }
{
    let header = image.header;
    let settings = Settings::new(header.servers, header.replicas, header.region)?;
    if header.installs > MOST || header.next_tx > MOST || header.next_tx == 0 {
        return None;
    }
    if !paths_before(header.next_tx, image.paths.as_slice()) {
        return None;
    }
    if !files_before(header.next_tx, image.files.as_slice()) {
        return None;
    }
    Some(settings)
}

/// The greatest number of installs, and of the next transaction.
const MOST: u64 = 1 << 62;

/// Whether the inodes that paths name are of transactions before this one.
fn paths_before(tx: u64, paths: &[PathRecord]) -> bool
    ensures { result ≡ list_all (λ r. is_node_before tx r.node) paths.now }
{
    for record in paths {
        if !is_node_before(tx, record.node) {
            return false;
        }
    }
    true
}

/// Whether a directory stands there, or a file of a transaction before this one.
fn is_node_before(tx: u64, node: Node) -> bool
    ensures { result ≡ is_node_before tx node }
{
    match node {
        Node::Folder => true,
        Node::File(inode) => is_before(tx, inode),
    }
}

/// Whether an inode is of a transaction before this one.
fn is_before(tx: u64, inode: InodeId) -> bool
    ensures { result ≡ is_before tx inode }
{
    inode.tx.0 < tx
}

/// Whether files are of transactions before this one.
fn files_before(tx: u64, files: &[FileRecord]) -> bool
    ensures { result ≡ list_all (λ f. is_before tx f.inode) (file_rows files.now) }
{
    for file in files {
        if !is_before(tx, file.inode) {
            return false;
        }
    }
    true
}
