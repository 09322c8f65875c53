// Object names and chunk keys.
ghost use Rattle.std.specs.Prelude.{◌≡◌, length};
ghost use Rattle.outcomes.specs.Answers.{buffer};
ghost use Rattle.keys.specs.Keys.{read_redis, read_tkv, write_redis, write_tkv};
ghost use Rattle.names.specs.Names.{read_object, read_full, write_object, write_full};
ghost use Rattle.ezumokarin.specs.Plain.{wrote};
ghost use Rattle.ezumokarin.specs.Names.{object_read, full_read, chunk_read};

use crate::{Chunk, Object, Plain, answers};

// names::write_object_name.
#[unsafe(no_mangle)]
pub extern "C" fn ezk_write_object_name(id: u64, block: u64, size: u64, out: &mut [u8]) -> Plain
    ensures value { result ≡ wrote (write_object id block size (length out.old)) }
    ensures out_after { out.new ≡ buffer (write_object id block size (length out.old)) out.old }
{
    Plain::from(names::write_object_name(id, block, size, out))
}

// names::write_full_name.
#[unsafe(no_mangle)]
pub extern "C" fn ezk_write_full_name(
    volume: &[u8],
    id: u64,
    block: u64,
    size: u64,
    out: &mut [u8],
) -> Plain
    ensures value { result ≡ wrote (write_full volume.now id block size (length out.old)) }
    ensures out_after { out.new ≡ buffer (write_full volume.now id block size (length out.old)) out.old }
{
    Plain::from(names::write_full_name(volume, id, block, size, out))
}

// names::read_object_name.
#[unsafe(no_mangle)]
pub extern "C" fn ezk_read_object_name(name: &[u8]) -> Object
    ensures { result ≡ object_read (read_object name.now) }
{
    answers::of_object(names::read_object_name(name), 0)
}

// names::read_full_name, with the length of names::volume_of: the name is read once.
#[unsafe(no_mangle)]
pub extern "C" fn ezk_read_full_name(name: &[u8]) -> Object
    ensures { result ≡ full_read (read_full name.now) }
{
    let named = names::read_full_name(name);
    let volume = names::volume_part(name, &named);
    let n = volume.len() as u64;
    answers::of_object(named, n)
}

// keys::write_redis_key.
#[unsafe(no_mangle)]
pub extern "C" fn ezk_write_redis_key(inode: u64, index: u64, out: &mut [u8]) -> Plain
    ensures value { result ≡ wrote (write_redis inode index (length out.old)) }
    ensures out_after { out.new ≡ buffer (write_redis inode index (length out.old)) out.old }
{
    Plain::from(keys::write_redis_key(inode, index, out))
}

// keys::write_tkv_key.
#[unsafe(no_mangle)]
pub extern "C" fn ezk_write_tkv_key(inode: u64, index: u64, out: &mut [u8]) -> Plain
    ensures value { result ≡ wrote (write_tkv inode index (length out.old)) }
    ensures out_after { out.new ≡ buffer (write_tkv inode index (length out.old)) out.old }
{
    Plain::from(keys::write_tkv_key(inode, index, out))
}

// keys::read_redis_key.
#[unsafe(no_mangle)]
pub extern "C" fn ezk_read_redis_key(key: &[u8]) -> Chunk
    ensures { result ≡ chunk_read (read_redis key.now) }
{
    Chunk::from(keys::read_redis_key(key))
}

// keys::read_tkv_key.
#[unsafe(no_mangle)]
pub extern "C" fn ezk_read_tkv_key(key: &[u8]) -> Chunk
    ensures { result ≡ chunk_read (read_tkv key.now) }
{
    Chunk::from(keys::read_tkv_key(key))
}
