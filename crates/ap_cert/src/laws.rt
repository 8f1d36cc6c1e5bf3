ghost use Rattle.std.specs.Prelude.{◌≡◌, ℕ, List};
ghost use Rattle.ap_cert.specs.Cert.{IsCert};
ghost use Rattle.ap_cert.specs.declared.cert.Cert.{Cert};

/// The law that a certificate has one reading: two well-written ones with one text are equal. It does nothing.
pub fn certificates_read_one_way()
    ensures { (text : List ℕ) (c d : Cert) → IsCert text c → IsCert text d → c ≡ d }
{}
