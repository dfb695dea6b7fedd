ghost use Rattle.std.specs.List.{All};
ghost use Rattle.std.specs.Prelude.{◌≡◌, ◌≤◌, ◌∷◌, ◌++◌, length, OnOk, pos};
ghost use Rattle.receive_changes.specs.process_semantics.specs.Words.{with_count, long};
ghost use Rattle.receive_changes.specs.checkpoint_image.specs.Layout.{IsPlace, file_words, words_of_list};
ghost use Rattle.change_layout.specs.Layout.{IsShort, change_words, receive_words};

use receive_changes::{
    FileNumber, List, NoMemory, OpenerChange, ReceiveChange, put_count, put_counted, put_files,
    put_long, put_place, put_replies,
};

fn put_change(change: &OpenerChange, out: &mut List<i16>) -> Result<(), NoMemory>
    requires { IsShort change.now }
    ensures { OnOk result (out.new ≡ out.old ++ change_words change.now) }
{
    let count = change.added.len() as u16;
    out.push((change.opener * 8 + count) as i16)?;
    put_long(change.taken, out)?;
    put_replies(change.added.as_slice(), out)?;
    Ok(())
}

fn put_changes(changes: &[OpenerChange], out: &mut List<i16>) -> Result<(), NoMemory>
    requires changes { length changes.now ≤ 32767 }
    requires short { All IsShort changes.now }
    ensures { OnOk result (out.new ≡ out.old ++ words_of_list change_words changes.now) }
{
    put_count(changes.len(), out)?;
    for change in changes {
        put_change(change, out)?;
    }
    Ok(())
}

/// Puts what changed in a receive table behind words.
pub fn put_receive(change: &ReceiveChange, out: &mut List<i16>) -> Result<(), NoMemory>
    requires changes { length change.now.changes ≤ 32767 }
    requires short { All IsShort change.now.changes }
    requires in_hand { IsPlace change.now.in_hand }
    ensures { OnOk result (out.new ≡ out.old ++ receive_words change.now) }
{
    put_changes(change.changes.as_slice(), out)?;
    put_place(change.in_hand, out)?;
    Ok(())
}

/// Puts the body and the files behind words.
pub fn put_contents(body: &[i16], files: &[FileNumber], out: &mut List<i16>) -> Result<(), NoMemory>
    requires body { length body.now ≤ 32767 }
    requires files { length files.now ≤ 32767 }
    ensures { OnOk result (out.new ≡ out.old ++ (with_count body.now ++ words_of_list file_words files.now)) }
{
    put_counted(body, out)?;
    put_files(files, out)?;
    Ok(())
}

/// Puts the words before an image behind words.
pub fn put_heading(process: u8, era: u32, number: u32, out: &mut List<i16>) -> Result<(), NoMemory>
    ensures { OnOk result (out.new ≡ out.old ++ (pos 7 ∷ pos process ∷ long era ++ long number)) }
{
    out.push(7)?;
    out.push(i16::from(process))?;
    put_long(era, out)?;
    put_long(number, out)?;
    Ok(())
}
