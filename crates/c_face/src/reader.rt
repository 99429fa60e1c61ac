// The reader of net texts.
ghost use Rattle.std.specs.Prelude.{◌≡◌};
ghost use Rattle.net_text.specs.Reading.{read};
ghost use Rattle.c_face.specs.Read.{told_of};

// Reads a text: the refusal's number and line go to told, or 0 and 0 where it gives a net.
#[unsafe(no_mangle)]
pub extern "C" fn cild_read(text: &[u8], told: &mut [u64; 2])
    ensures { told.new ≡ told_of (read text.now) }
{
    *told = match net_text::read_net(text) {
        Ok(_) => [0, 0],
        Err(down) => [down.refusal.number(), down.line],
    };
}
