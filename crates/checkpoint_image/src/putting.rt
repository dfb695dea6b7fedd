ghost use Rattle.std.specs.List.{All, flat_map};
ghost use Rattle.std.specs.Prelude.{◌≡◌, ◌≤◌, [], ◌∷◌, ◌++◌, length, OnOk, pos};
ghost use Rattle.process_images.specs.gd_words.specs.Arithmetic.{wrap};
ghost use Rattle.process_images.specs.process_semantics.specs.Words.{long, with_count};
ghost use Rattle.checkpoint_image.specs.Layout.{IsPlace, words_of_list, file_words, opener_words, place_word};
ghost use Rattle.checkpoint_image.specs.Layout.{receive_words};
ghost use Rattle.checkpoint_image.specs.Layout.{image_words, heading_words};

use crate::message::{FileNumber, Image, ImageMessage};
use crate::receive::{OpenerBlock, ReceiveBlock};
use process_images::{List, NoMemory, Words};

pub fn put_count(count: usize, out: &mut List<i16>) -> Result<(), NoMemory>
    requires { count ≤ 32767 }
    ensures { OnOk result (out.new ≡ out.old ++ pos count ∷ []) }
{
    out.push(count as i16)?;
    Ok(())
}

/// The word of the pattern that a number of 16 bits has.
fn pattern(number: u16) -> i16
    ensures { result ≡ wrap (pos number) }
{
    number.cast_signed()
}

/// Puts a number of 32 bits behind words.
pub fn put_long(number: u32, out: &mut List<i16>) -> Result<(), NoMemory>
    ensures { OnOk result (out.new ≡ out.old ++ long number) }
{
    out.push(pattern((number / 65_536) as u16))?;
    out.push(pattern((number % 65_536) as u16))?;
    Ok(())
}

/// Puts words, with how many they are, behind others.
pub fn put_counted(words: &[i16], out: &mut List<i16>) -> Result<(), NoMemory>
    requires { length words.now ≤ 32767 }
    ensures { OnOk result (out.new ≡ out.old ++ with_count words.now) }
{
    put_count(words.len(), out)?;
    out.extend_from_slice(words)?;
    Ok(())
}

fn put_file(named: FileNumber, out: &mut List<i16>) -> Result<(), NoMemory>
    ensures { OnOk result (out.new ≡ out.old ++ file_words named) }
{
    out.push(i16::from(named.file))?;
    put_long(named.next, out)
}

pub fn put_files(files: &[FileNumber], out: &mut List<i16>) -> Result<(), NoMemory>
    requires { length files.now ≤ 32767 }
    ensures { OnOk result (out.new ≡ out.old ++ words_of_list file_words files.now) }
{
    put_count(files.len(), out)?;
    for named in files {
        put_file(*named, out)?;
    }
    Ok(())
}

/// Puts replies, each with how many words it has, behind words.
pub fn put_replies(replies: &[Words], out: &mut List<i16>) -> Result<(), NoMemory>
    ensures { OnOk result (out.new ≡ out.old ++ flat_map with_count replies.now) }
{
    for words in replies {
        put_counted(words.as_slice(), out)?;
    }
    Ok(())
}

fn put_opener(block: &OpenerBlock, out: &mut List<i16>) -> Result<(), NoMemory>
    requires { length block.now.kept ≤ 32767 }
    ensures { OnOk result (out.new ≡ out.old ++ opener_words block.now) }
{
    put_long(block.taken, out)?;
    put_count(block.kept.len(), out)?;
    put_replies(block.kept.as_slice(), out)?;
    Ok(())
}

fn put_openers(openers: &[OpenerBlock], out: &mut List<i16>) -> Result<(), NoMemory>
    requires openers { length openers.now ≤ 32767 }
    requires kept { All (λ block. length block.kept ≤ 32767) openers.now }
    ensures { OnOk result (out.new ≡ out.old ++ words_of_list opener_words openers.now) }
{
    put_count(openers.len(), out)?;
    for block in openers {
        put_opener(block, out)?;
    }
    Ok(())
}

pub fn put_place(in_hand: Option<u16>, out: &mut List<i16>) -> Result<(), NoMemory>
    requires { IsPlace in_hand }
    ensures { OnOk result (out.new ≡ out.old ++ place_word in_hand ∷ []) }
{
    let word = match in_hand {
        None => -1,
        Some(place) => place as i16,
    };
    out.push(word)?;
    Ok(())
}

fn put_receive(table: &ReceiveBlock, out: &mut List<i16>) -> Result<(), NoMemory>
    requires openers { length table.now.openers ≤ 32767 }
    requires kept { All (λ block. length block.kept ≤ 32767) table.now.openers }
    requires in_hand { IsPlace table.now.in_hand }
    ensures { OnOk result (out.new ≡ out.old ++ receive_words table.now) }
{
    put_openers(table.openers.as_slice(), out)?;
    put_place(table.in_hand, out)?;
    Ok(())
}

pub fn put_image(image: &Image, out: &mut List<i16>) -> Result<(), NoMemory>
    requires body { length image.now.body ≤ 32767 }
    requires files { length image.now.files ≤ 32767 }
    requires openers { length image.now.receive.openers ≤ 32767 }
    requires kept { All (λ block. length block.kept ≤ 32767) image.now.receive.openers }
    requires in_hand { IsPlace image.now.receive.in_hand }
    ensures { OnOk result (out.new ≡ out.old ++ image_words image.now) }
{
    put_counted(image.body.as_slice(), out)?;
    put_files(image.files.as_slice(), out)?;
    put_receive(&image.receive, out)?;
    Ok(())
}

pub fn put_heading(message: &ImageMessage, out: &mut List<i16>) -> Result<(), NoMemory>
    ensures { OnOk result (out.new ≡ out.old ++ heading_words message.now) }
{
    out.push(3)?;
    out.push(i16::from(message.process))?;
    put_long(message.era, out)?;
    put_long(message.number, out)?;
    Ok(())
}
